// What a pane means by the terminal below it, as definitions and their laws: no code of its own.
#![tactic(auto)]
