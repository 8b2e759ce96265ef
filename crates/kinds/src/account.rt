// The accounts of the ledger.
ghost use Rattle.std.specs.Prelude.{◌≡◌};
ghost use Rattle.kinds.specs.Account.{closes_to};

// In the order in which the ledger keeps them.
#[derive(Clone, Copy)]
pub enum Account {
    Held,
    Shipped,
    OffSite,
    Landfill,
    Soil,
    Consumed,
    Gas,
    Water,
    Vapour,
}

// Where the close moves a holding, by whether its side is water, as a pair says it: an enum of two sides would be read here alone.
#[tactic(auto, unfolding(crate::specs::Account::closes_to))]
pub fn closes_to(water: bool) -> Account
    ensures { result ≡ closes_to water }
{
    if water { Account::Water } else { Account::Gas }
}
