// Second differences of the sine rule and of the shadow's path: bounds, all in specs/. Nothing here runs.
#![tactic(auto)]
