//! The one value that the answers of several calls in one make.
ghost use Rattle.std.specs.Prelude.{◌≡◌, [], IfOk, IsErr, OnErr, OnOk, Some, None};
ghost use Rattle.sv_multi.specs.MultiCall.{result_of};
ghost use Rattle.sv_multi.specs.Gathered.{adds, gathered, results_of};
ghost use Rattle.sv_xmlcall.specs.Trees.{reply_view, view};

use std::alloc::{AllocError, Global};
use sv_base::text::Text;
use sv_xmlcall::call::Answered;
use sv_xmlcall::value::Value;

/// The answers of several calls in one, gathered in their order. Contracts see `results_of`.
#[derive(Drop)]
pub struct Gather {
    results: Option<Vec<Value>>,
}

impl Gather {
    /// No answers, which takes no memory.
    pub fn new(alloc: Global) -> Gather
        ensures { results_of result ≡ Some [] }
    {
        Gather {
            results: Some(Vec::new(alloc)),
        }
    }

    /// Adds an answer: its value in an array of its own, or the struct of its fault. Out of memory is the answer of each
    /// later call too.
    pub fn add(&mut self, alloc: Global, answered: Answered) -> Result<(), AllocError>
        ensures ok { OnOk result (results_of self.new
            ≡ adds (results_of self.old) (result_of (reply_view answered))) }
        ensures err { OnErr result (results_of self.new ≡ None) }
        ensures stays_refused { results_of self.old ≡ None → IsErr result }
    {
        let Some(mut results) = self.results.take() else {
            return Err(AllocError);
        };
        results.push(result_of(alloc, answered)?)?;
        self.results = Some(results);
        Ok(())
    }

    /// The array of what was gathered. It takes no memory: `Err` is that memory was refused before.
    pub fn value(self) -> Result<Value, AllocError>
        ensures value { IfOk result (λ value. gathered (results_of self) ≡ Some (view value)) }
        ensures err { OnErr result (results_of self ≡ None) }
    {
        let Gather { results } = self;
        match results {
            Some(results) => Ok(Value::Array(results)),
            None => Err(AllocError),
        }
    }
}

/// What an answer is in the one value: an array of the value alone, or the struct of the fault.
fn result_of(alloc: Global, answered: Answered) -> Result<Value, AllocError>
    ensures { IfOk result (λ value. view value ≡ result_of (reply_view answered)) }
{
    match answered {
        Answered::Value(value) => Ok(Value::Array(vec![in alloc; value]?)),
        Answered::Fault(number, text) => Ok(Value::Struct(vec![in alloc;
            (Text::fixed("faultCode"), Value::Int(number)),
            (Text::fixed("faultString"), Value::Text(text)),
        ]?)),
    }
}
