//! `ijson!`: JSON values written as literals.
//!
//! The macro consumes the tokens of a literal one value at a time, like the macro of the Rust crate
//! `ijson`.

/// Creates a JSON value from a literal, as a `Result<IValue, ConvertError>`.
///
/// A literal is one of:
/// - `null`
/// - a list in brackets, or an object in braces, of literals
/// - an expression of a type that implements `ToIValue`, such as a value; it is copied
///
/// Floats are not supported. A key is an expression of type `&str`; a duplicate key replaces the
/// earlier value. A trailing comma is allowed, and a misplaced token does not compile. Capacity
/// grows as with `push` and `insert`.
///
/// ```
/// let value = ijson!(alloc, &mut cache;
///     {"name": "ijson", "sizes": [1u8, 2u8, null], "nested": {"deep": true}})?;
/// ```
///
/// # Errors
///
/// Returns `Memory` if an allocation fails. The partial value is dropped. Some of the strings may
/// then be in the cache.
#[macro_export]
macro_rules! ijson {
    ($alloc:expr, $cache:expr; $($json:tt)+) => {{
        let alloc = $alloc;
        let cache = $cache;
        let built: std::result::Result<$crate::IValue, $crate::convert::ConvertError> = 'built: {
            Ok($crate::ijson_internal!(alloc cache 'built; $($json)+))
        };
        built
    }};
}

/// A hidden helper of `ijson!`, which expands the literal.
#[macro_export]
macro_rules! ijson_internal {
    // In all rules, `$a` is the allocator, `$c` the cache, and `$out` the label of the block of the
    // literal. `$list` and `$pairs` are the array and the object so far.

    // Like `?`, but leaves the block of the literal instead of the caller's function.
    (@try $out:lifetime $step:expr) => {
        match $step {
            Ok(done) => done,
            Err(refused) => break $out Err(refused),
        }
    };

    // Elements: the tokens begin with a value, or with an expression that ends at a comma.
    (@array $a:ident $c:ident $out:lifetime $list:ident) => {};
    (@array $a:ident $c:ident $out:lifetime $list:ident null $($rest:tt)*) => {
        $crate::ijson_internal!(@item $a $c $out $list (null) $($rest)*);
    };
    (@array $a:ident $c:ident $out:lifetime $list:ident [$($inner:tt)*] $($rest:tt)*) => {
        $crate::ijson_internal!(@item $a $c $out $list ([$($inner)*]) $($rest)*);
    };
    (@array $a:ident $c:ident $out:lifetime $list:ident {$($inner:tt)*} $($rest:tt)*) => {
        $crate::ijson_internal!(@item $a $c $out $list ({$($inner)*}) $($rest)*);
    };
    (@array $a:ident $c:ident $out:lifetime $list:ident $next:expr, $($rest:tt)*) => {
        $crate::ijson_internal!(@try $out $crate::literal::push_of($a, $c, &mut $list, &$next));
        $crate::ijson_internal!(@array $a $c $out $list $($rest)*);
    };
    (@array $a:ident $c:ident $out:lifetime $list:ident $last:expr) => {
        $crate::ijson_internal!(@try $out $crate::literal::push_of($a, $c, &mut $list, &$last));
    };
    (@array $a:ident $c:ident $out:lifetime $list:ident , $($rest:tt)*) => {
        $crate::ijson_unexpected!(,)
    };
    (@item $a:ident $c:ident $out:lifetime $list:ident ($($value:tt)+)) => {
        let item = $crate::ijson_internal!($a $c $out; $($value)+);
        $crate::ijson_internal!(@try $out $crate::literal::push(&mut $list, item));
    };
    (@item $a:ident $c:ident $out:lifetime $list:ident ($($value:tt)+) , $($rest:tt)*) => {
        let item = $crate::ijson_internal!($a $c $out; $($value)+);
        $crate::ijson_internal!(@try $out $crate::literal::push(&mut $list, item));
        $crate::ijson_internal!(@array $a $c $out $list $($rest)*);
    };
    (@item $a:ident $c:ident $out:lifetime $list:ident ($($value:tt)+) $unexpected:tt $($rest:tt)*) => {
        $crate::ijson_unexpected!($unexpected)
    };

    // Entries: the tokens before the colon are the key. A comma before the colon, and a colon
    // without a value, do not compile.
    (@object $a:ident $c:ident $out:lifetime $pairs:ident () ()) => {};
    (@object $a:ident $c:ident $out:lifetime $pairs:ident ($($key:tt)+) (: null $($rest:tt)*)) => {
        $crate::ijson_internal!(@pair $a $c $out $pairs ($($key)+) (null) $($rest)*);
    };
    (@object $a:ident $c:ident $out:lifetime $pairs:ident ($($key:tt)+) (: [$($inner:tt)*] $($rest:tt)*)) => {
        $crate::ijson_internal!(@pair $a $c $out $pairs ($($key)+) ([$($inner)*]) $($rest)*);
    };
    (@object $a:ident $c:ident $out:lifetime $pairs:ident ($($key:tt)+) (: {$($inner:tt)*} $($rest:tt)*)) => {
        $crate::ijson_internal!(@pair $a $c $out $pairs ($($key)+) ({$($inner)*}) $($rest)*);
    };
    (@object $a:ident $c:ident $out:lifetime $pairs:ident ($($key:tt)+) (: $value:expr, $($rest:tt)*)) => {
        $crate::ijson_internal!(@try $out $crate::literal::insert_of($a, $c, &mut $pairs, $($key)+, &$value));
        $crate::ijson_internal!(@object $a $c $out $pairs () ($($rest)*));
    };
    (@object $a:ident $c:ident $out:lifetime $pairs:ident ($($key:tt)+) (: $value:expr)) => {
        $crate::ijson_internal!(@try $out $crate::literal::insert_of($a, $c, &mut $pairs, $($key)+, &$value));
    };
    (@object $a:ident $c:ident $out:lifetime $pairs:ident () (: $($rest:tt)*)) => {
        $crate::ijson_unexpected!(:)
    };
    (@object $a:ident $c:ident $out:lifetime $pairs:ident ($($key:tt)+) (: $($rest:tt)*)) => {
        $crate::ijson_expect_expr_comma!($($rest)*)
    };
    (@object $a:ident $c:ident $out:lifetime $pairs:ident ($($key:tt)*) (, $($rest:tt)*)) => {
        $crate::ijson_unexpected!(,)
    };
    (@object $a:ident $c:ident $out:lifetime $pairs:ident () ($next:tt $($rest:tt)*)) => {
        $crate::ijson_internal!(@object $a $c $out $pairs ($next) ($($rest)*));
    };
    (@object $a:ident $c:ident $out:lifetime $pairs:ident ($($key:tt)+) ($next:tt $($rest:tt)*)) => {
        $crate::ijson_internal!(@object $a $c $out $pairs ($($key)+ $next) ($($rest)*));
    };
    (@put $a:ident $c:ident $out:lifetime $pairs:ident ($($key:tt)+) ($($value:tt)+)) => {
        let key = $crate::ijson_internal!(@try $out $crate::literal::intern($c, $($key)+));
        let value = $crate::ijson_internal!($a $c $out; $($value)+);
        $crate::ijson_internal!(@try $out $crate::literal::insert(&mut $pairs, key, value));
    };
    (@pair $a:ident $c:ident $out:lifetime $pairs:ident ($($key:tt)+) ($($value:tt)+)) => {
        $crate::ijson_internal!(@put $a $c $out $pairs ($($key)+) ($($value)+));
    };
    (@pair $a:ident $c:ident $out:lifetime $pairs:ident ($($key:tt)+) ($($value:tt)+) , $($rest:tt)*) => {
        $crate::ijson_internal!(@put $a $c $out $pairs ($($key)+) ($($value)+));
        $crate::ijson_internal!(@object $a $c $out $pairs () ($($rest)*));
    };
    (@pair $a:ident $c:ident $out:lifetime $pairs:ident ($($key:tt)+) ($($value:tt)+) $unexpected:tt $($rest:tt)*) => {
        $crate::ijson_unexpected!($unexpected)
    };

    ($a:ident $c:ident $out:lifetime; null) => {
        $crate::IValue::NULL
    };
    ($a:ident $c:ident $out:lifetime; [$($items:tt)*]) => {{
        let mut list = $crate::IArray::new($a);
        $crate::ijson_internal!(@array $a $c $out list $($items)*);
        $crate::IValue::from(list)
    }};
    ($a:ident $c:ident $out:lifetime; {$($members:tt)*}) => {{
        let mut pairs = $crate::IObject::new($a);
        $crate::ijson_internal!(@object $a $c $out pairs () ($($members)*));
        $crate::IValue::from(pairs)
    }};
    ($a:ident $c:ident $out:lifetime; $other:expr) => {
        $crate::ijson_internal!(@try $out $crate::to_value($a, $c, &$other))
    };
}

/// A hidden helper of `ijson!` that rejects every token, to report a misplaced token.
#[macro_export]
macro_rules! ijson_unexpected {
    () => {};
}

/// A hidden helper of `ijson!` that rejects tokens after a colon unless they begin with an
/// expression and a comma.
#[macro_export]
macro_rules! ijson_expect_expr_comma {
    ($value:expr, $($rest:tt)*) => {};
}
