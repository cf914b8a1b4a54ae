//! The tests of `lit_desk`, `lit_syntax`, `lit_read` and `lit_paths`, a module for each but `lit_syntax`, through their public calls.
#![tactic(auto)]

#[cfg(test)]
mod desk;
#[cfg(test)]
mod nested;
#[cfg(test)]
mod paths;
#[cfg(test)]
mod planned;
#[cfg(test)]
mod read;
