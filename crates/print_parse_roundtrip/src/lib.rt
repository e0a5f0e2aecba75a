//! Why a canonical text is read as the tree that it shows.
#![tactic(auto)]
