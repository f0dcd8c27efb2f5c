// The rules by which functions over a lent table of structs can be proved by hand: specs/Derive.antt. No code.
