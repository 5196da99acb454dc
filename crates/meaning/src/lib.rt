// The meaning of the doors: docs/REFERENCE.md as definitions that compute, and the laws that show them to
// hang together. There is no code here; the crates above prove their code equal to these definitions.
// docs/SPECIFICATION.md points from each section of the reference to its definitions.
//
// specs/, in the order in which they are read:
//
//     Layout      rows of fields, lists counted from 1, an answer's bytes
//     Pool        the pool as a state, its bytes, the fields, the reading
//     Sound       when a pool is sound, clause by clause
//     Change      free slots, a record in and out, reset, marks and what they undo
//     Cursor      the cursor, and which record a command means
//     Command     the ops as one table, the refusals as one ordered table, one command
//     Doors       create, check, batch and name, on all inputs
//     Listing     the listing program's text, and what the function that writes it leaves
//
// and, for the theorems about the doors alone:
//
//     WellFormed  what is true of the state of every sound pool
//     Meant       what a pool means: for each tree the list of its records by rising key
//     States      the states that a batch goes through, and a command as bytes give it
//     Refused     the words of demand 1: which refusal is given, the tests of each op in their order
//     Demands     the words of demand 2: looks, additions and removals over the lists
//     Places      where a record stands in a tree, and a tree as a pool's bytes store it
//     Calls       the words of demand 3: door calls, points of a batch, what is said of a handle from there on
//     Told        the same over the bytes of the answers
//
// proofs/, by what they are about; the theorems to be read come last in a group, behind the colon:
//
//     claims that compute    Lines, then: Cases, Limits, Refusals, Damage, WholeWalk, EntryException
//     shared facts           Facts, Among, Bytes, Neighbours, Slots, Members, Determined: DoorsDetermined
//     bytes and states       Clauses, Sections, Hanging, Contents, Reading, RoundTrip; Packed, Rows, Stored,
//                            ReadBack, Written: Pools (a sound pool and a well-formed state are one thing)
//     what commands keep     Formed, Changes, Good, Undoing, Journals, Cursors, NewKeys, Tables, Adding, Acts:
//                            Commands, Batches
//     demand 1               Chains: Demand1, Demand1Doors
//     demand 2, the lists    Entries, EntryChanges, Sights, Seen, Removals, Totals, FreeSlots, Turns, Sizes:
//                            Demand2, Demand2Looks, Demand2Handles, Demand2Changes, Demand2Codes, Demand2Name
//     demand 2, the shapes   : Demand2Shapes, Demand2Places, StoredShapes
//     demand 3 and handles   Histories, Bindings, Points, StaleHandles, Doing, Marks, Reach, Rollbacks, Given,
//                            ShownHandles: Demand3, KeptHandles, LiveHandles; a batch to which they apply:
//                            RollbackCase
//     the same, as answered  Answers, ToldShuts: ToldHandles, ToldGone, ToldPlans; a batch: ToldCase
//
// docs/AUDIT.md leads to the theorems from the auditor's two questions, docs/DEMANDS.md from the demands.
#![tactic(auto)]
