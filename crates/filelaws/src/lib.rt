// What holds of table files when their tables are edited or joined and then written (document 02, jobs 6 and 3), from bytes to bytes. The crate has no
// code: `tablereader` reads, `edits` and `series` make tables, `tablewriter` writes. specs/Rack.antt and specs/Series.antt are the statements.
#![tactic(auto)]
