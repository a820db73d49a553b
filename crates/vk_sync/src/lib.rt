//! A folder is brought to hold just the wanted files: what is asked, one call after the other, as a
//! protocol.
//! It promises upwards that no call changes anything but below the folder, whatever is replied.
#![tactic(auto)]

pub mod laws;
