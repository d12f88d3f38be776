// No code: general lemmas, on tests and whole numbers in specs/Cases.antt and on lists in specs/Lists.antt.
#![tactic(auto)]
