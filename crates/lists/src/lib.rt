// What every layer says of lists and the kit's libraries do not: definitions and laws, and no code.
#![tactic(auto)]
