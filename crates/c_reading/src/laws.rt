//! The laws of the grammar, which follow from its definitions alone: each is the contract of a
//! function that does nothing.
ghost use Rattle.std.specs.Prelude.{ℕ};
ghost use Rattle.c_grammar.specs.Expr.{is_expr, expr_marks};
ghost use Rattle.c_grammar.specs.File.{is_file, file_marks};
ghost use Rattle.c_grammar.specs.Verdict.{HasOneTree, FixesDepths};
ghost use Rattle.c_reading.specs.ReadExpr.{read_expr};
ghost use Rattle.c_reading.specs.ReadFile.{read_file};
ghost use Rattle.c_reading.specs.Exact.{ReadsExactly};

/// No two files that keep the rules of the grammar have the same tokens.
pub fn a_file_has_one_tree()
    ensures { HasOneTree file_marks is_file }
{}

/// The tokens of a file up to one of them fix its depth: two files give the tokens with which both
/// begin the same depths.
pub fn tokens_fix_the_depths_of_a_file()
    ensures { FixesDepths file_marks is_file }
{}

/// A list of tokens is read to a file exactly where it is the tokens of one and no token is deeper
/// than the limit. Else reading stops exactly at the first token that is unexpected or too deep,
/// whichever comes first, and at the end where the tokens only begin a file.
pub fn a_file_is_read_exactly()
    ensures { (limit : ℕ) → ReadsExactly limit file_marks is_file (read_file limit) }
{}

/// No two trees of whole expressions have the same tokens.
pub fn an_expression_has_one_tree()
    ensures { HasOneTree (expr_marks 0) is_expr }
{}

/// The tokens of an expression up to one of them fix its depth.
pub fn tokens_fix_the_depths_of_an_expression()
    ensures { FixesDepths (expr_marks 0) is_expr }
{}

/// Reading an expression gives its tree exactly where no token is too deep, and else stops exactly
/// at the first unexpected or too deep token, whatever the limit is.
pub fn an_expression_is_read_exactly()
    ensures { (limit : ℕ) → ReadsExactly limit (expr_marks 0) is_expr (read_expr limit) }
{}
