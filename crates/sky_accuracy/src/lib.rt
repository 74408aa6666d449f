// How far the rule is from the sky. Nothing here runs.
#![tactic(auto)]
