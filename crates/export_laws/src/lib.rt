// Laws about the calls over bytes; no code.
#![tactic(auto)]
