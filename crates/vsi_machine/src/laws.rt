//! Laws of runs, and of bounds on their instructions.

ghost use Rattle.vsi_machine.specs.{Laws.{BudgetsAdd, CountDecides, HaltingLasts, NeverStuck, OneCount, OneEnding}, BoundLaws.{EnoughBudget, ExactCount}};

/// A run and a further run are one run with the sum of both budgets.
pub fn budgets_add()
    ensures { BudgetsAdd }
{}

/// A run that has halted within a budget is in the same state after every larger one.
pub fn halting_lasts()
    ensures { HaltingLasts }
{}

/// Two budgets within which an image halts give the same words in the globals.
pub fn one_ending()
    ensures { OneEnding }
{}

/// Every run of a valid image has a state: no instruction lacks an operand or a slot. In every
/// state that a run reaches, the next instruction is in the code, finds its operands, its slot and
/// its target, and leaves no more operands than the image's stack has room for.
pub fn never_stuck()
    ensures { NeverStuck }
{}

/// An image has at most one count for the same words.
pub fn one_count()
    ensures { OneCount }
{}

/// An image halts within a budget exactly if the budget is no smaller than its count.
pub fn count_decides()
    ensures { CountDecides }
{}

/// If the budget is no smaller than an image's bound, its run from every store halts.
pub fn enough_budget()
    ensures { EnoughBudget }
{}

/// If the least and the greatest number of instructions are equal, every run takes exactly that
/// many.
pub fn exact_count()
    ensures { ExactCount }
{}
