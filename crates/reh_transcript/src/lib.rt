// No code: the definitions of a player's hand, and of the transcript of a script that one seat of a book plays.
#![tactic(auto)]
