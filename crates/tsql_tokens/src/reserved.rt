ghost use Rattle.std.specs.Prelude.{◌≡◌};
ghost use Rattle.tsql_tokens.specs.Reserved.{is_word, is_among, is_reserved, words_a_to_b, words_c, words_d_to_e, words_f_to_h, words_i, words_j_to_n, words_o_to_p, words_r, words_s, words_t, words_u_to_z};

use cs_base::is_same_name;

/// Whether these bytes are this word, whatever their case.
#[tactic(auto, unfolding(crate::specs::Reserved::is_word))]
pub fn is_word(bytes: &[u8], word: &[u8]) -> bool
    ensures { result ≡ is_word bytes.now word.now }
{
    is_same_name(bytes, word)
}

fn is_a_to_b(word: &[u8]) -> bool
    ensures { result ≡ is_among word.now words_a_to_b }
{
    is_word(word, b"ALL")
        || is_word(word, b"ALTER")
        || is_word(word, b"AND")
        || is_word(word, b"ANY")
        || is_word(word, b"ASC")
        || is_word(word, b"BEGIN")
        || is_word(word, b"BETWEEN")
        || is_word(word, b"BY")
}

fn is_c(word: &[u8]) -> bool
    ensures { result ≡ is_among word.now words_c }
{
    is_word(word, b"CASE")
        || is_word(word, b"CAST")
        || is_word(word, b"CLUSTERED")
        || is_word(word, b"COMMIT")
        || is_word(word, b"CONSTRAINT")
        || is_word(word, b"CONVERT")
        || is_word(word, b"CREATE")
        || is_word(word, b"CROSS")
}

fn is_d_to_e(word: &[u8]) -> bool
    ensures { result ≡ is_among word.now words_d_to_e }
{
    is_word(word, b"DEFAULT")
        || is_word(word, b"DELETE")
        || is_word(word, b"DENY")
        || is_word(word, b"DESC")
        || is_word(word, b"DISTINCT")
        || is_word(word, b"DROP")
        || is_word(word, b"ESCAPE")
        || is_word(word, b"EXCEPT")
        || is_word(word, b"EXEC")
        || is_word(word, b"EXECUTE")
        || is_word(word, b"EXISTS")
}

fn is_f_to_h(word: &[u8]) -> bool
    ensures { result ≡ is_among word.now words_f_to_h }
{
    is_word(word, b"FOREIGN")
        || is_word(word, b"FROM")
        || is_word(word, b"FULL")
        || is_word(word, b"GRANT")
        || is_word(word, b"GROUP")
        || is_word(word, b"HAVING")
}

fn is_i(word: &[u8]) -> bool
    ensures { result ≡ is_among word.now words_i }
{
    is_word(word, b"IDENTITY")
        || is_word(word, b"IN")
        || is_word(word, b"INDEX")
        || is_word(word, b"INNER")
        || is_word(word, b"INSERT")
        || is_word(word, b"INTERSECT")
        || is_word(word, b"INTO")
        || is_word(word, b"IS")
}

fn is_j_to_n(word: &[u8]) -> bool
    ensures { result ≡ is_among word.now words_j_to_n }
{
    is_word(word, b"JOIN")
        || is_word(word, b"KEY")
        || is_word(word, b"LEFT")
        || is_word(word, b"LIKE")
        || is_word(word, b"MERGE")
        || is_word(word, b"NONCLUSTERED")
        || is_word(word, b"NOT")
        || is_word(word, b"NULL")
}

fn is_o_to_p(word: &[u8]) -> bool
    ensures { result ≡ is_among word.now words_o_to_p }
{
    is_word(word, b"OFF")
        || is_word(word, b"ON")
        || is_word(word, b"OR")
        || is_word(word, b"ORDER")
        || is_word(word, b"OUTER")
        || is_word(word, b"OVER")
        || is_word(word, b"PERCENT")
        || is_word(word, b"PIVOT")
        || is_word(word, b"PRIMARY")
}

fn is_r(word: &[u8]) -> bool
    ensures { result ≡ is_among word.now words_r }
{
    is_word(word, b"READ")
        || is_word(word, b"REBUILD")
        || is_word(word, b"REFERENCES")
        || is_word(word, b"REPEATABLE")
        || is_word(word, b"RIGHT")
        || is_word(word, b"ROLLBACK")
}

fn is_s(word: &[u8]) -> bool
    ensures { result ≡ is_among word.now words_s }
{
    is_word(word, b"SAVE")
        || is_word(word, b"SELECT")
        || is_word(word, b"SERIALIZABLE")
        || is_word(word, b"SET")
}

fn is_t(word: &[u8]) -> bool
    ensures { result ≡ is_among word.now words_t }
{
    is_word(word, b"TABLE")
        || is_word(word, b"TOP")
        || is_word(word, b"TRAN")
        || is_word(word, b"TRANSACTION")
        || is_word(word, b"TRUNCATE")
}

fn is_u_to_z(word: &[u8]) -> bool
    ensures { result ≡ is_among word.now words_u_to_z }
{
    is_word(word, b"UNION")
        || is_word(word, b"UNIQUE")
        || is_word(word, b"UPDATE")
        || is_word(word, b"USE")
        || is_word(word, b"VALUES")
        || is_word(word, b"VIEW")
        || is_word(word, b"WHERE")
        || is_word(word, b"WITH")
}

/// Whether a word is reserved, without regard to ASCII case.
#[tactic(auto, unfolding(crate::specs::Reserved::is_reserved))]
pub fn is_reserved(word: &[u8]) -> bool
    ensures { result ≡ is_reserved word.now }
{
    is_a_to_b(word)
        || is_c(word)
        || is_d_to_e(word)
        || is_f_to_h(word)
        || is_i(word)
        || is_j_to_n(word)
        || is_o_to_p(word)
        || is_r(word)
        || is_s(word)
        || is_t(word)
        || is_u_to_z(word)
}
