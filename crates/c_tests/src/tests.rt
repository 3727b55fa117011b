mod lexing;
