// Laws about the definitions of model, no code: the shape of an undamaged store, and that every call keeps it.
#![tactic(auto)]
