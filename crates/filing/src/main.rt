// The return of a journal: reads the journal from standard input and prints the return.
#![tactic(auto)]

use filing_run::run;
use streams::input::Input;
use streams::output::Output;

fn main(rt: HostRuntime) {
    let mut input = Input::new(rt.stdin());
    let mut output = Output::new(rt.stdout());
    if let Err(trouble) = run::print_return(&mut input, &mut output) {
        let _ = trouble.tell("filing", &mut rt.stderr());
    }
}
