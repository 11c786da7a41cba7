//! What a call of a driver leaves in hand, as rows are written into the tray: each step of a call keeps
//! hands and state in agreement, whatever the driver and the event. It has no code: definitions stand
//! in specs/, lemmas in proofs/.
#![tactic(auto)]
