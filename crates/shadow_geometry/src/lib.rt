// The shadow at one second as definitions over whole numbers, its exact twin, and how far the two are apart: all in
// specs/. Nothing here runs.
#![tactic(auto)]
