//! Runs: bases of a tree that stand side by side, and that one operation marked from the left to the right. Laws alone, no code.
#![tactic(auto)]
