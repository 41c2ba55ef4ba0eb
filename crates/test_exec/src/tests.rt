//! SELECTs over plain rows. What `answer` asks of rows and labels is tested before it is called.
mod checks;
mod clinic;
mod counted;
mod joins;
mod key_look_ups;
mod ranges;
mod requests;
mod sums;
mod tables;
