//! Tests of things that only a caller in Rattle can show: buffers of a fixed size, types of the caller's own, members of a set,
//! and the splitter beside a splitter that goes byte by byte.
#![tactic(auto)]

#[cfg(test)]
mod fault;
#[cfg(test)]
mod fixed_buffers;
#[cfg(test)]
mod given;
#[cfg(test)]
mod lent;
#[cfg(test)]
mod lookups;
#[cfg(test)]
mod names;
#[cfg(test)]
mod own_values;
#[cfg(test)]
mod random;
#[cfg(test)]
mod reference_splitter;
