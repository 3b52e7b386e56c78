// Queries, answers and replies.
use crate::formats::{FromValue, ToValue};
use crate::lists::{four_values, read_list};
use crate::part_fault::PartFault;
use ls_files::Version;
use ls_set::{ItemSet, Query, QueryList};
use ls_theory::{Answer, Reply};
use serde_json::Value;
use std::alloc::{AllocError, Global};

impl FromValue for Query {
    ghost use Rattle.ls_files.specs.SessionCodecs.{query_codec};

    ghost reads = { λ v n d. (query_codec n).read d };

    fn from_value(
        alloc: Global,
        version: Version,
        n: u32,
        value: &Value,
    ) -> Result<Query, PartFault> {
        let (a, q) = <(ItemSet, u32)>::from_value(alloc, version, n, value)?;
        Ok(Query { a, q })
    }
}

impl ToValue for Query {
    ghost use Rattle.std.specs.Prelude.{◌≡◌, true};
    ghost use Rattle.ls_set.specs.{is_good};
    ghost use Rattle.ls_files.specs.SessionCodecs.{query_codec};

    ghost is_fine = { λ n r. is_good n r ≡ true };

    ghost writes = { λ n r. (query_codec n).write r };

    fn to_value(&self, alloc: Global, n: u32) -> Result<Value, AllocError> {
        (self.a, self.q).to_value(alloc, n)
    }
}

impl FromValue for QueryList {
    ghost use Rattle.ls_files.specs.Codecs.{lists};
    ghost use Rattle.ls_files.specs.SessionCodecs.{query_codec};

    ghost reads = { λ v n d. (lists (query_codec n)).read d };

    fn from_value(
        alloc: Global,
        version: Version,
        n: u32,
        value: &Value,
    ) -> Result<QueryList, PartFault> {
        let queries: Vec<Query> = read_list(alloc, version, n, value)?;
        Ok(QueryList::from_slice(alloc, &queries)?)
    }
}

impl FromValue for Answer {
    ghost use Rattle.ls_files.specs.SessionCodecs.{answer_codec};

    ghost reads = { λ v n d. (answer_codec n).read d };

    fn from_value(
        alloc: Global,
        version: Version,
        n: u32,
        value: &Value,
    ) -> Result<Answer, PartFault> {
        let ((number, yes), (a, q)) = four_values(value).ok_or(PartFault::Bad)?;
        Ok(Answer {
            number: u64::from_value(alloc, version, n, number)?,
            yes: bool::from_value(alloc, version, n, yes)?,
            query: Query {
                a: ItemSet::from_value(alloc, version, n, a)?,
                q: u32::from_value(alloc, version, n, q)?,
            },
        })
    }
}

impl ToValue for Answer {
    ghost use Rattle.std.specs.Prelude.{◌≡◌, true};
    ghost use Rattle.ls_set.specs.{is_good};
    ghost use Rattle.ls_files.specs.SessionCodecs.{answer_codec};

    ghost is_fine = { λ n a. is_good n a.query ≡ true };

    ghost writes = { λ n a. (answer_codec n).write a };

    fn to_value(&self, alloc: Global, n: u32) -> Result<Value, AllocError> {
        let mut values = Vec::new(alloc);
        values.push(Value::from(self.number))?;
        values.push(Value::from(self.yes))?;
        values.push(self.query.a.to_value(alloc, n)?)?;
        values.push(Value::from(self.query.q))?;
        Ok(Value::Array(values))
    }
}

impl FromValue for Reply {
    ghost use Rattle.ls_files.specs.SessionCodecs.{reply_codec};

    ghost reads = { λ v n d. (reply_codec n).read d };

    fn from_value(
        alloc: Global,
        version: Version,
        n: u32,
        value: &Value,
    ) -> Result<Reply, PartFault> {
        let (q, right) = <(u32, bool)>::from_value(alloc, version, n, value)?;
        Ok(Reply { q, right })
    }
}

impl ToValue for Reply {
    ghost use Rattle.std.specs.Prelude.{⊤};
    ghost use Rattle.ls_files.specs.SessionCodecs.{reply_codec};

    ghost is_fine = { λ n r. ⊤ };

    ghost writes = { λ n r. (reply_codec n).write r };

    fn to_value(&self, alloc: Global, n: u32) -> Result<Value, AllocError> {
        (self.q, self.right).to_value(alloc, n)
    }
}
