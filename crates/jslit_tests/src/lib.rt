//! The tests of `jslit`: what no proof of it sees. They print the worked reports and refusals to the byte, and make each
//! public call on devices that give all, little or nothing.
#![tactic(auto)]

#[cfg(test)]
mod calls;
#[cfg(test)]
mod command_line;
#[cfg(test)]
mod cut_texts;
#[cfg(test)]
mod data;
#[cfg(test)]
mod devices;
#[cfg(test)]
mod many_paths;
#[cfg(test)]
mod named_files;
#[cfg(test)]
mod refusals;
#[cfg(test)]
mod schedules;
#[cfg(test)]
mod uneven_devices;
#[cfg(test)]
mod watched;
#[cfg(test)]
mod whole_reports;
#[cfg(test)]
mod workers;
