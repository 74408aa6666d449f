// How far the sine rule is from the true sine. Nothing here runs.
#![tactic(auto)]
