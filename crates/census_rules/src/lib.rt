// The rules of the census of a hospital's beds (document 02, U13): a board, a table, the calls, and what holds of every list of them. All of it stands in specs/.
#![tactic(auto)]
