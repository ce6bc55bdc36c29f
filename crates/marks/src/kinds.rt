// The two kinds of contract, by how they are paid for.

ghost use Rattle.std.specs.Prelude.{◌≡◌};
ghost use Rattle.marks.specs.Kind.{kind_of, is_monthly};

// Of a lump sum no month can be missed.
#[derive(Clone, Copy, Debug, PartialEq, Eq)]
pub enum Kind {
    Monthly,
    AtOnce,
}

impl Kind {
    // That of a contract with a term in years, which is 0 for a lump sum.
    #[tactic(auto, using(common::proofs::Tests::tests), unfolding(crate::specs::Kind::kind_of))]
    pub fn of(term: u32) -> Kind
        ensures { result ≡ kind_of term }
    {
        if term == 0 {
            Kind::AtOnce
        } else {
            Kind::Monthly
        }
    }

    // Whether it is paid month by month.
    pub fn is_monthly(self) -> bool
        ensures { result ≡ is_monthly self }
    {
        match self {
            Kind::Monthly => true,
            Kind::AtOnce => false,
        }
    }
}
