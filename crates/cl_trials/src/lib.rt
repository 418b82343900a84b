//! Calls with ample memory of what no command reaches yet, and of the adapters over real files and output. A contract lets want
//! of memory through, so that a call can succeed is tried here; what it answers then is proved.
#![tactic(auto)]

#[cfg(test)]
mod audits;
#[cfg(test)]
mod bounds;
#[cfg(test)]
mod files;
#[cfg(test)]
mod grafts;
#[cfg(test)]
mod lanes;
#[cfg(test)]
mod layers;
#[cfg(test)]
mod ledgers;
#[cfg(test)]
mod listeners;
#[cfg(test)]
mod natives;
#[cfg(test)]
mod nodes;
#[cfg(test)]
mod orders;
#[cfg(test)]
mod principals;
#[cfg(test)]
mod roots;
#[cfg(test)]
mod sequences;
#[cfg(test)]
mod world;
