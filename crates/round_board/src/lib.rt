//! The words of a board and the cells of a round go together, step by step.
#![tactic(auto)]

ghost use Rattle.round_board.specs.Steps.{StepsAgree};

/// A step of the board on the word of a cell, beside a round's event on that cell: what the board tells is the round's answer,
/// which is never a refusal, and the word that the step leaves says what the event leaves of the cell.
pub fn words_are_cells()
    ensures { StepsAgree }
{}
