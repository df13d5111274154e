#![tactic(auto)]
// What the functions that open an image know of each other: the object map, its marks, and tests part by part. Nothing to call.
