// A document as a forest, and what is written of it: definitions and theorems, no code. What a list makes of a forest is in specs/Cut.antt;
// the engine that makes it item by item, in one way through the document, is in specs/Engine.antt, and shown to write the same.

#![tactic(auto)]
