//! The first refusal so far.
ghost use Rattle.std.specs.Prelude.{◌≡◌, Some, None};
ghost use Rattle.idl_rules.specs.Doubles.{when};
ghost use Rattle.idl_rules.specs.Order.{is_before, lesser, least_of};

use crate::row::IdlRow;
use std::marker::Model;

/// Of the refusals that were noted the one with the least offset, at one offset the one with the lower row.
#[derive(Drop)]
pub struct Least {
    found: Option<(usize, IdlRow)>,
}

impl Model for Least {
    ghost use Rattle.std.specs.Prelude.{Option};
    ghost use Rattle.idl_rules.specs.Order.{Refusal};

    ghost Value = { Option Refusal };

    ghost view = { λ l. l.found };
}

impl Least {
    /// Nothing is refused yet.
    pub fn new() -> Least
        ensures { result ≡ None }
    {
        Least { found: None }
    }

    /// Notes what is refused at an offset.
    #[tactic(auto, unfolding(crate::specs::Order::lesser))]
    pub fn note(&mut self, at: usize, row: IdlRow)
        ensures { self.new ≡ lesser self.old (Some (at, row)) }
    {
        let told = told(self.found, at, row);
        self.found = told;
    }

    /// Notes what is refused at an offset, where there is reason for it.
    pub fn note_when(&mut self, refused: bool, at: usize, row: IdlRow)
        ensures { self.new ≡ lesser self.old (least_of (when refused at row)) }
    {
        if refused {
            self.note(at, row);
        }
    }

    /// What is refused first.
    pub fn found(&self) -> Option<(usize, IdlRow)>
        ensures { result ≡ self.now }
    {
        self.found
    }
}

// Which of the two is told.
#[tactic(auto, unfolding(crate::specs::Order::lesser))]
fn told(found: Option<(usize, IdlRow)>, at: usize, row: IdlRow) -> Option<(usize, IdlRow)>
    ensures { result ≡ lesser found (Some (at, row)) }
{
    match found {
        Some((first, other)) => {
            if is_before(at, row, first, other) {
                Some((at, row))
            } else {
                Some((first, other))
            }
        }
        None => Some((at, row)),
    }
}

fn is_before(at: usize, row: IdlRow, first: usize, other: IdlRow) -> bool
    ensures { result ≡ is_before (at, row) (first, other) }
{
    if at < first {
        true
    } else if first < at {
        false
    } else {
        row.rank() < other.rank()
    }
}
