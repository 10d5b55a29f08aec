// Ranges of columns: the smallest that holds what was touched of a row, and its laws. There is no code here.
#![tactic(auto)]
