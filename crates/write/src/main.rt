// A journal from records: reads a list of records from standard input, and writes the journal of those that are taken on standard output.
#![tactic(auto)]

use streams::input::Input;
use streams::output::Output;
use write_run::run;

fn main(rt: HostRuntime) {
    let mut input = Input::new(rt.stdin());
    let mut output = Output::new(rt.stdout());

    // The journal has room for 4,096 blocks.
    let mut buffer = [0; 2097152];
    if let Err(trouble) = run::write_journal(
        &mut input,
        &mut output,
        &mut rt.stderr(),
        buffer.as_mut_slice(),
    ) {
        let _ = trouble.tell("write", &mut rt.stderr());
    }
}
