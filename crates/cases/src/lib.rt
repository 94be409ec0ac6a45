//! Tables of examples, as tests.
#![tactic(auto)]

#[cfg(test)]
mod composed;
#[cfg(test)]
mod decoded;
#[cfg(test)]
mod heard;
#[cfg(test)]
mod kinds;
#[cfg(test)]
mod notified;
#[cfg(test)]
mod records;
#[cfg(test)]
mod refused;
#[cfg(test)]
mod requested;
#[cfg(test)]
mod streamed;
#[cfg(test)]
mod written;
