// No code: the starred cases of document 01 as one table of the definitions, under one theorem (specs/Table.antt). Later
// modules add rows there, and no proof.

#![tactic(auto)]
