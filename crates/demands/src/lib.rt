// What the owner asks, as statements about the other crates. There is no product code here.
#![tactic(auto)]
