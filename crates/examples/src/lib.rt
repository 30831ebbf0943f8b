// Document 01's examples, as theorems of the definitions: the table of C1 to C6 (specs/Table.antt) and the listing of the printing
// program, byte for byte (specs/Listing.antt). There is no code here.
#![tactic(auto)]
