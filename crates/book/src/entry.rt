// A move entered in a year.
ghost use Rattle.std.specs.Prelude.{◌≡◌, ℕ, ◌+◌, ◌-◌, ◌^◌, ◌≤◌, ◌<◌, true, get_or, set};
ghost use Rattle.amounts.specs.Decline.{value_or, verdict_of};
ghost use Rattle.kinds.specs.declared.account.Account.TheVariants.{Held};
ghost use Rattle.book.specs.Entry.{is_there, year_after};
ghost use Rattle.book.specs.Ledger.{cell, cell_of, raised, brings};
ghost use Rattle.book.specs.Posts.{entered};
ghost use Rattle.book.specs.Steps.{Room, widest};
ghost use Rattle.post.specs.Steps.{Fits};

use crate::ledger;
use crate::ledger::cell_of;
use crate::site::Year;
use amounts::decline::Decline;
use kinds::account::Account;
use plant::setup::Setup;
use post::moves::Move;

impl Year {
    // Whether what leaves a store or a holding is there.
    fn has(&self, m: Move) -> bool
        requires { Fits widest m }
        ensures { result ≡ is_there self.now.store self.now.sums m }
    {
        match m {
            Move::Issued {
                material,
                grams,
                ..
            } => grams <= self.store[material],
            Move::Gone {
                stage,
                substance,
                amount,
                ..
            } => amount <= self.sums[cell_of(Account::Held, stage, substance)],
            Move::Received { .. } | Move::Brought { .. } | Move::Close => true,
        }
    }

    // Grams leave the store for a stage.
    fn issue(&mut self, counted: &[u32; 96], material: usize, stage: usize, grams: u64)
        requires material_bound { (material < 12) × (stage < 8) }
        requires there { grams ≤ get_or self.old.store material 0 }
        requires sums_bound { (s : ℕ) → s < 8 → cell self.old.sums Held stage s + brings counted.now material grams s < 2 ^ 64 }
        requires handled_bound { (s : ℕ) → s < 8 → get_or self.old.handled s 0 + brings counted.now material grams s < 2 ^ 64 }
        ensures store_after { self.new.store ≡ set self.old.store material (get_or self.old.store material 0 - grams) }
        ensures sums_after { self.new.sums ≡ raised (cell_of Held stage) (brings counted.now material grams) self.old.sums 8 }
        ensures handled_after { self.new.handled ≡ raised (λ s. s) (brings counted.now material grams) self.old.handled 8 }
        ensures others { (self.new.posts ≡ self.old.posts) × (self.new.closed ≡ self.old.closed) }
    {
        self.store[material] -= grams;
        ledger::issue(
            &mut self.sums,
            &mut self.handled,
            counted,
            material,
            stage,
            grams,
        );
    }

    // The move, whose amount is there, and a post more.
    fn apply(&mut self, setup: &Setup, m: Move)
        requires room { Room setup.now self.old m }
        requires there { is_there self.old.store self.old.sums m ≡ true }
        ensures { self.new ≡ year_after setup.now self.old m }
    {
        self.posts += 1;
        self.closed = m.closes();
        match m {
            Move::Received { material, grams } => self.store[material] += grams,
            Move::Issued {
                material,
                stage,
                grams,
            } => self.issue(&setup.counted, material, stage, grams),
            Move::Brought {
                account,
                stage,
                substance,
                amount,
            } => {
                let cell = cell_of(account, stage, substance);
                ledger::bring(&mut self.sums, &mut self.handled, cell, substance, amount);
            }
            Move::Gone {
                account,
                stage,
                substance,
                amount,
            } => {
                let from = cell_of(Account::Held, stage, substance);
                let to = cell_of(account, stage, substance);
                ledger::shift(&mut self.sums, from, to, amount);
            }
            Move::Close => ledger::settle(&mut self.sums, &setup.pairs),
        }
    }

    // A move that is admitted: declined by 11, or entered.
    #[tactic(auto, unfolding(crate::specs::Posts::entered, amounts::specs::Decline::checked))]
    pub(crate) fn enter(&mut self, setup: &Setup, m: Move) -> Result<(), Decline>
        requires { Room setup.now self.old m }
        ensures verdict { result ≡ verdict_of (entered setup.now self.old m) }
        ensures year { self.new ≡ value_or self.old (entered setup.now self.old m) }
    {
        if self.has(m) {
            self.apply(setup, m);
            Ok(())
        } else {
            Err(Decline::Short)
        }
    }
}
