// Mathematics, no code: the third demand (specification 11). The exact source point and the chain conditions, lists of
// calls, the exact chain, memory, and lists worked out that meet every premise. For verifiers: start at specs/Demand.
#![tactic(auto)]
