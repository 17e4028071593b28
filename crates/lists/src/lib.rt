// The vocabulary that all crates share, over plain lists and numbers. There is no code here.
//
//   specs/Lists      all elements, all pairs, membership, no repetition, ascending, counting
//   specs/Tests      what it means that a test decides
//   specs/Puts       bytes put into a lent slice one part after the other
//   proofs/Numbers   order as a sum, tests of numbers
//   proofs/Lists     laws of All, Pairs, Mem, Distinct
//   proofs/Counting  laws of count and count_from, and of sums
//   proofs/Maps      laws of map and filterMap
//   proofs/Stores    laws of set and sets: what a write changes and what it leaves
//   proofs/Parts     laws of take and drop
//   proofs/Puts      laws of Put

#![tactic(auto)]
