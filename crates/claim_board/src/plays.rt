//! What each step on the table tells.
use crate::records::Records;
use atomic_table::{Join, Play, Split};

pub(crate) struct Claim;

impl Play<u8, Records> for Claim {
    ghost use Rattle.claim_board.specs.Steps.{claimed};

    ghost then = { claimed };
}

pub(crate) struct Look;

impl Play<u8, Records> for Look {
    ghost use Rattle.claim_board.specs.Steps.{looked};

    ghost then = { looked };
}

pub(crate) struct Finish;

impl Play<u8, Records> for Finish {
    ghost use Rattle.claim_board.specs.Steps.{ended};
    ghost use Rattle.fetch_plan.specs.declared.cell.Cell.TheVariants.{Done};

    ghost then = { ended Done };
}

pub(crate) struct Miss;

impl Play<u8, Records> for Miss {
    ghost use Rattle.claim_board.specs.Steps.{ended};
    ghost use Rattle.fetch_plan.specs.declared.cell.Cell.TheVariants.{Missed};

    ghost then = { ended Missed };
}

pub(crate) struct Release;

impl Play<u8, Records> for Release {
    ghost use Rattle.claim_board.specs.Steps.{released};

    ghost then = { released };
}

/// A step that changes nothing, by which the lanes of a view are compared.
pub(crate) struct Compare;

impl Play<u8, Records> for Compare {
    ghost use Rattle.claim_board.specs.Steps.{compared};

    ghost then = { compared };
}

/// The first lane of a view goes to a seat of its own.
pub(crate) struct Cut;

impl Split<Records> for Cut {
    ghost use Rattle.claim_board.specs.Steps.{others_of, first_of};

    ghost left = { others_of };

    ghost right = { first_of };
}

/// A view takes in the lanes of another.
pub(crate) struct Glue;

impl Join<Records> for Glue {
    ghost use Rattle.std.specs.Prelude.{◌++◌, []};

    ghost both = { λ v w. v ++ w };

    ghost spent = { [] };
}
