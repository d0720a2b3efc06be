//! Laws of the jobs.

ghost use Rattle.plan_run.specs.Laws.{FaultyLinesFail, LeastTextsPass, FaultyTextsFail, PlannedTextsPass};

use plan_check::{one_answer, one_fault, round_trip};
use sharing::pigeonhole;

/// The jobs refuse a text by its first line that is wrong, or by the first that is out of order.
pub fn faulty_lines_fail()
    ensures { FaultyLinesFail }
{
    one_fault();
}

/// The job `check` tells the load of a plan text whose gives are a sharing that the group shows to be least.
pub fn least_texts_pass()
    ensures { LeastTextsPass }
{
    pigeonhole();
    round_trip();
    one_fault();
    one_answer();
}

/// The job `check` refuses a plan text by the number of what is wrong with its plan.
pub fn faulty_texts_fail()
    ensures { FaultyTextsFail }
{
    round_trip();
    one_fault();
    one_answer();
}

/// The job `check` tells the least load on each text that the job `plan` writes, and finds no fault there.
pub fn planned_texts_pass()
    ensures { PlannedTextsPass }
{
    least_texts_pass();
}
