//! Tables of nodes in which each node comes after those that follow it, seen as trees: what a tree is made of, and what stays when nodes are added.
#![tactic(auto)]
