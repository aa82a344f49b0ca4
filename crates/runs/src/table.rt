// Tokens by the numbers that they are known by.
ghost use Rattle.std.specs.Prelude.{◌≡◌, ◌<◌, ℕ, vec_len, slice_set, Some, None, IfNone, IfOk, IsSome};
ghost use Rattle.std.specs.Option.{option_copied};
ghost use Rattle.runs.specs.State.{named};
ghost use Rattle.runs.specs.Tokens.{Empty};

use std::alloc::{AllocError, Global};
use store::token::Token;

// A place for each frame of a store, for the token that is known by its number.
pub(crate) struct Table<R: Copy> {
    tokens: Vec<Option<Token<R>>>,
    ghost long: { vec_len tokens ≡ 1024 },
}

impl<R: Copy> Drop for Table<R> {
    fn drop(self)
        requires { Empty self.tokens.items }
    {
        let Table { mut tokens } = self;
        while let Some(_token) = tokens.pop() {}
        tokens.destroy_empty();
    }
}

impl<R: Copy> Table<R> {
    pub(crate) fn new(alloc: Global) -> Result<Table<R>, AllocError>
        ensures { IfOk result (λ t. Empty t.tokens.items) }
    {
        let mut tokens = Vec::with_capacity(alloc, 1024)?;
        for _ in 0..1024usize {
            tokens.push_reserved(None);
        }
        Ok(Table { tokens })
    }

    // The token that is known by `n`, if there is one.
    pub(crate) fn get(&self, n: u16) -> Option<&Token<R>>
        ensures { option_copied result ≡ named self.now.tokens.items n }
    {
        self.tokens.get(n as usize)?.as_ref()
    }

    // Takes it out.
    pub(crate) fn take(&mut self, n: u16) -> Option<Token<R>>
        ensures was { result ≡ named self.old.tokens.items n }
        ensures within { IsSome result → n < 1024 }
        ensures left { self.new.tokens.items ≡ slice_set self.old.tokens.items n None }
        ensures same { IfNone result (self.new.tokens.items ≡ self.old.tokens.items) }
    {
        if n < 1024 {
            self.tokens[n as usize].take()
        } else {
            None
        }
    }

    // Puts a token in its place.
    pub(crate) fn put(&mut self, n: u16, token: Token<R>)
        requires within { n < 1024 }
        requires vacant { named self.old.tokens.items n ≡ None }
        ensures { self.new.tokens.items ≡ slice_set self.old.tokens.items n (Some token) }
    {
        self.tokens[n as usize] = Some(token);
    }
}
