// The definitions that the contracts of the rehearsal cite: its cluster, its events and what each one does, sessions,
// scripts and transcripts.
#![tactic(auto)]
