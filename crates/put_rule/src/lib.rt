// The put rule on rows and grids, as definitions and their laws: no code of its own.
#![tactic(auto)]
