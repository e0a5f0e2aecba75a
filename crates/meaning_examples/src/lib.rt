//! Worked examples of scripts, computed from the definitions of their text, rules and meaning.
#![tactic(auto)]
