// No code: specs/EdgeTable.antt is document 01's table of proved rows, one theorem on the definitions of the crates below.
#![tactic(auto)]
